// The fields that stand in the spread form, by their place there: what `words` says of them, with kind and field known at each call,
// so that the compiler reads the tables and no lookup is left in the loops over a list or an image.
ghost use Rattle.std.specs.Prelude.{◌≡◌, ◌*◌, ◌%◌, ◌^◌, ltb, get_or};
ghost use Rattle.model.specs.Fields.{widths_of, kept_fields, below, field};
ghost use Rattle.model.specs.Spread.{group_size};

use model::Kind;

// How many there are.
pub fn size_of(kind: Kind) -> usize
    ensures { result ≡ group_size kind }
{
    match kind {
        Kind::Header => words::group_size(Kind::Header),
        Kind::Predicate => words::group_size(Kind::Predicate),
        Kind::Clause => words::group_size(Kind::Clause),
        Kind::Var => words::group_size(Kind::Var),
        Kind::Con => words::group_size(Kind::Con),
        Kind::Goal => words::group_size(Kind::Goal),
        _ => words::group_size(kind),
    }
}

// What a function of kind and field says of the field at a place, by the tables. It is called for what is in no image, and so kept out of the loops: with it in them none would be unrolled.
#[cold]
#[inline(never)]
fn by_table<R, F: FnOnce(Kind, usize) -> R>(kind: Kind, j: usize, of: F) -> R
    requires { F.IsAlwaysCallable of }
    ensures { F.post of kind (get_or (kept_fields kind) j 0) result }
{
    of(kind, words::kept_field(kind, j))
}

// The same with kind and field known at each call, so that no table is read.
#[tactic(auto, unfolding(model::specs::Fields::kept_fields))]
fn of_kept<R, F: FnOnce(Kind, usize) -> R>(kind: Kind, j: usize, of: F) -> R
    requires { F.IsAlwaysCallable of }
    ensures { F.post of kind (get_or (kept_fields kind) j 0) result }
{
    match (kind, j) {
        (Kind::Header, 0) => of(Kind::Header, 0),
        (Kind::Header, 1) => of(Kind::Header, 1),
        (Kind::Header, 2) => of(Kind::Header, 3),
        (Kind::Predicate, 0) => of(Kind::Predicate, 0),
        (Kind::Predicate, 1) => of(Kind::Predicate, 1),
        (Kind::Predicate, 2) => of(Kind::Predicate, 2),
        (Kind::Predicate, 3) => of(Kind::Predicate, 3),
        (Kind::Clause, 0) => of(Kind::Clause, 0),
        (Kind::Clause, 1) => of(Kind::Clause, 1),
        (Kind::Clause, 2) => of(Kind::Clause, 2),
        (Kind::Clause, 3) => of(Kind::Clause, 3),
        (Kind::Var, 0) => of(Kind::Var, 0),
        (Kind::Var, 1) => of(Kind::Var, 2),
        (Kind::Con, 0) => of(Kind::Con, 0),
        (Kind::Con, 1) => of(Kind::Con, 1),
        (Kind::Goal, 0) => of(Kind::Goal, 0),
        (Kind::Goal, 1) => of(Kind::Goal, 1),
        _ => by_table(kind, j, of),
    }
}

// Whether a value is not too wide for the field.
pub fn fits_kept(value: u32, kind: Kind, j: usize) -> bool
    ensures { result ≡ ltb value (2 ^ get_or (widths_of kind) (get_or (kept_fields kind) j 0) 0) }
{
    of_kept(kind, j, |kind, field| words::fits(value, kind, field))
}

// A value cut to the field's width, at the field's place.
pub fn placed_kept(value: u32, kind: Kind, j: usize) -> u32
    ensures { result ≡ value % 2 ^ get_or (widths_of kind) (get_or (kept_fields kind) j 0) 0 * 2 ^ below (widths_of kind) (get_or (kept_fields kind) j 0) }
{
    of_kept(kind, j, |kind, field| words::placed(value, kind, field))
}

// The field of a word.
pub fn read_kept(word: u32, kind: Kind, j: usize) -> u32
    ensures { result ≡ field (widths_of kind) word (get_or (kept_fields kind) j 0) }
{
    of_kept(kind, j, |kind, field| words::read(word, kind, field))
}
