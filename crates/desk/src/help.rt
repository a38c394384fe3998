// What the desk program says of itself.
use std::io;

const LINES: [&str; 10] = [
    "desk [FILE]   searches by the rules in FILE, or in standard input, with one worker.\n",
    "It reads words of 32 bits, most significant byte first: the query's length,\n",
    "the query (at most 272 words), the rule image (at most 1,024 words).\n",
    "Each answer is a line: the steps so far, then for each variable of the query\n",
    "cN, the constant N, or vN, an unbound variable; equal N, equal variables.\n",
    "The last line is the status: finished N, full N (all 64 slots used), spent N\n",
    "(65,535 steps taken) or refused R P (28 0: not such a file, or unreadable;\n",
    "else fault R at word P of the image, or of the query where R is above 32).\n",
    "The exit status is always 0, so a script tests the last line:\n",
    "  desk FILE | tail -n 1 | grep -q '^finished '\n",
];

pub(crate) fn print(rt: &impl Print) -> io::Result<()> {
    for line in LINES {
        rt.write_all(line.as_bytes())?;
    }
    Ok(())
}

// Whether the first argument asks for it.
pub(crate) fn is_asked(path: &[u8]) -> bool {
    path == b"--help".as_slice()
}
