// The fields of a word: reading them, and placing values in them. The field widths stand once, in `WIDTHS`.
#![tactic(auto)]

ghost use Rattle.std.specs.Prelude.{◌≡◌, ◌+◌, ◌*◌, ◌%◌, ◌^◌, ◌≤◌, ◌<◌, ltb, get_or, set};
ghost use Rattle.model.specs.Fields.{widths_of, kept_fields, below, field, edition, predicate_count, header_zero, image_length, arity, clause_count, first_clause, op, variables, goal_count, clause_length, variable_zero, variable_number, goal_predicate, goal_zero, constant, sequential};
ghost use Rattle.model.specs.Memory.{tag, value};
ghost use Rattle.model.specs.Spread.{group_size};
ghost use Rattle.words.specs.Table.{row_of};

use model::Kind;

// The ops by which the words behind the predicates' are told apart.
pub const VAR_OP: u32 = 1;

pub const CON_OP: u32 = 2;

pub const CLAUSE_OP: u32 = 8;

pub const GOAL_OP: u32 = 9;

// The tags of values: its own number, where nothing is bound; another variable's cell; a constant.
pub const VNO_TAG: u32 = 0;

pub const REF_TAG: u32 = 1;

pub const CON_TAG: u32 = 2;

// The widths of every kind of word, most significant first, a row a kind.
const WIDTHS: [[u32; 6]; 11] = [
    [4, 10, 1, 17, 0, 0], // Header
    [4, 1, 10, 17, 0, 0], // Predicate
    [4, 6, 6, 16, 0, 0], // Clause
    [4, 22, 6, 0, 0, 0], // Var
    [4, 28, 0, 0, 0, 0], // Con
    [4, 10, 18, 0, 0, 0], // Goal
    [1, 6, 6, 4, 6, 9], // Node0
    [12, 3, 17, 0, 0, 0], // Node1
    [1, 6, 4, 10, 11, 0], // Node2
    [32, 0, 0, 0, 0, 0], // Node3
    [3, 29, 0, 0, 0, 0], // Value
];

// Which fields stand in the spread form, a row a kind, 0 past the last of them.
const KEPT: [[usize; 6]; 11] = [
    [0, 1, 3, 0, 0, 0], // Header
    [0, 1, 2, 3, 0, 0], // Predicate
    [0, 1, 2, 3, 0, 0], // Clause
    [0, 2, 0, 0, 0, 0], // Var
    [0, 1, 0, 0, 0, 0], // Con
    [0, 1, 0, 0, 0, 0], // Goal
    [0, 1, 2, 3, 4, 0], // Node0
    [0, 2, 0, 0, 0, 0], // Node1
    [0, 1, 2, 3, 0, 0], // Node2
    [0, 0, 0, 0, 0, 0], // Node3
    [0, 1, 0, 0, 0, 0], // Value
];

// How many fields stand in the spread form, by kind.
const SIZES: [usize; 11] = [3, 4, 4, 2, 2, 2, 5, 2, 4, 0, 2];

fn row(kind: Kind) -> usize
    ensures { result ≡ row_of kind }
{
    kind as usize
}

// The width of field `i`, 0 where there is no such field.
pub fn width(kind: Kind, i: usize) -> u32
    ensures { result ≡ get_or (widths_of kind) i 0 }
{
    if 6 <= i {
        return 0;
    }
    let widths = WIDTHS[row(kind)];
    widths[i]
}

// The bits below field `i`. Counted down by hand: this runs at every read of a field, and a `for` over a range is not folded away where kind and field are known.
fn low(kind: Kind, i: usize) -> u32
    requires { i < 6 }
    ensures { result ≡ below (widths_of kind) i }
{
    let mut bits: u32 = 0;
    let mut j: usize = 5;
    while i < j {
        bits += width(kind, j);
        j -= 1;
    }
    bits
}

// Field `i` of a word, 0 where there is no such field.
pub fn read(word: u32, kind: Kind, i: usize) -> u32
    ensures { result ≡ field (widths_of kind) word i }
{
    if 6 <= i {
        return 0;
    }
    let shift = low(kind, i);
    let bits = width(kind, i);
    ((word as u64 >> shift) % (1u64 << bits)) as u32
}

// How many fields of a word stand in the spread form.
pub fn group_size(kind: Kind) -> usize
    ensures { result ≡ group_size kind }
{
    SIZES[row(kind)]
}

// The field that stands at place `j` of the spread form.
pub fn kept_field(kind: Kind, j: usize) -> usize
    ensures { result ≡ get_or (kept_fields kind) j 0 }
{
    if 6 <= j {
        return 0;
    }
    let kept = KEPT[row(kind)];
    kept[j]
}

// Whether a value is not too wide for field `i`.
pub fn fits(value: u32, kind: Kind, i: usize) -> bool
    ensures { result ≡ ltb value (2 ^ get_or (widths_of kind) i 0) }
{
    let bits = width(kind, i);
    (value as u64) < (1u64 << bits)
}

// The word at a position, 0 past the end.
pub fn word_at(words: &[u32], at: usize) -> u32
    ensures { result ≡ get_or words.now at 0 }
{
    if at < words.len() { words[at] } else { 0 }
}

// The word at a position is set; past the end nothing is.
pub fn put(words: &mut [u32], at: usize, word: u32)
    ensures { words.new ≡ set words.old at word }
{
    if at < words.len() {
        words[at] = word;
    }
}

// A value cut to its field's width, at the field's place.
pub fn placed(value: u32, kind: Kind, i: usize) -> u32
    ensures { result ≡ value % 2 ^ get_or (widths_of kind) i 0 * 2 ^ below (widths_of kind) i }
{
    if 6 <= i {
        return 0;
    }
    let shift = low(kind, i);
    let bits = width(kind, i);
    ((value as u64 % (1u64 << bits)) << shift) as u32
}

// The fields of the rule image's words, by their names in document 01.
pub fn edition(word: u32) -> u32
    ensures { result ≡ edition word }
{
    read(word, Kind::Header, 0)
}

pub fn predicate_count(word: u32) -> u32
    ensures { result ≡ predicate_count word }
{
    read(word, Kind::Header, 1)
}

pub fn header_zero(word: u32) -> u32
    ensures { result ≡ header_zero word }
{
    read(word, Kind::Header, 2)
}

pub fn image_length(word: u32) -> u32
    ensures { result ≡ image_length word }
{
    read(word, Kind::Header, 3)
}

pub fn arity(word: u32) -> u32
    ensures { result ≡ arity word }
{
    read(word, Kind::Predicate, 0)
}

pub fn clause_count(word: u32) -> u32
    ensures { result ≡ clause_count word }
{
    read(word, Kind::Predicate, 2)
}

pub fn first_clause(word: u32) -> u32
    ensures { result ≡ first_clause word }
{
    read(word, Kind::Predicate, 3)
}

pub fn op(word: u32) -> u32
    ensures { result ≡ op word }
{
    read(word, Kind::Clause, 0)
}

pub fn variables(word: u32) -> u32
    ensures { result ≡ variables word }
{
    read(word, Kind::Clause, 1)
}

pub fn goal_count(word: u32) -> u32
    ensures { result ≡ goal_count word }
{
    read(word, Kind::Clause, 2)
}

pub fn clause_length(word: u32) -> u32
    ensures { result ≡ clause_length word }
{
    read(word, Kind::Clause, 3)
}

pub fn variable_zero(word: u32) -> u32
    ensures { result ≡ variable_zero word }
{
    read(word, Kind::Var, 1)
}

pub fn variable_number(word: u32) -> u32
    ensures { result ≡ variable_number word }
{
    read(word, Kind::Var, 2)
}

pub fn goal_predicate(word: u32) -> u32
    ensures { result ≡ goal_predicate word }
{
    read(word, Kind::Goal, 1)
}

pub fn goal_zero(word: u32) -> u32
    ensures { result ≡ goal_zero word }
{
    read(word, Kind::Goal, 2)
}

pub fn constant(word: u32) -> u32
    ensures { result ≡ constant word }
{
    read(word, Kind::Con, 1)
}

pub fn sequential(word: u32) -> u32
    ensures { result ≡ sequential word }
{
    read(word, Kind::Predicate, 1)
}

// The two fields of a value.
pub fn tag(word: u32) -> u32
    ensures { result ≡ tag word }
{
    read(word, Kind::Value, 0)
}

pub fn value(word: u32) -> u32
    ensures { result ≡ value word }
{
    read(word, Kind::Value, 1)
}
