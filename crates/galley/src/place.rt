// Which record a mark opens, and where it may come: a row for each.
ghost use Rattle.std.specs.Prelude.{◌≡◌};
ghost use Rattle.galley.specs.Place.{row_of, kind_of, unfit, turning};

use crate::{Kind, Sofar};

// The marks, two bytes each. Each is matched by its name, and an enum would only be read from the two bytes by the same table.
pub const GS: u32 = 0x4753;

pub const G2: u32 = 0x4732;

pub const FO: u32 = 0x464f;

pub const TL: u32 = 0x544c;

pub const FG: u32 = 0x4647;

pub const FK: u32 = 0x464b;

pub const TB: u32 = 0x5442;

pub const ED: u32 = 0x4544;

// The stages of a galley, in the order in which its records come. Numbers: with a type of its own for them, whose model is the number, the
// borrow checker did not cover a `Sofar` that is passed by value twice, as in `reading`.
pub const NOTHING: u32 = 0;

pub const SPEC: u32 = 1;

pub const FOLIO: u32 = 2;

pub const LINE: u32 = 3;

pub const FIGURE: u32 = 4;

pub const TABLE: u32 = 5;

pub const END: u32 = 6;

// A kind from its row.
fn row(stage: u32, earliest: u32, latest: u32, most: usize, size: usize) -> Kind
    ensures { result ≡ row_of stage earliest latest most size }
{
    Kind {
        stage,
        earliest,
        latest,
        most,
        size,
    }
}

// The kind of record that a mark opens; one that is unknown fits nowhere.
#[tactic(auto, unfolding(crate::specs::Place::kind_of))]
pub fn kind_of(mark: u32) -> Kind
    ensures { result ≡ kind_of mark }
{
    match mark {
        GS => row(SPEC, NOTHING, NOTHING, 1, 30),
        G2 => row(SPEC, NOTHING, NOTHING, 1, 34),
        FO => row(FOLIO, SPEC, SPEC, 1, 6),
        TL => row(LINE, SPEC, LINE, 4000, 18),
        FG => row(FIGURE, SPEC, FIGURE, 200, 18),
        FK => row(FIGURE, SPEC, FIGURE, 200, 18),
        TB => row(TABLE, SPEC, TABLE, 50, 18),
        ED => row(END, SPEC, TABLE, 1, 2),
        _ => row(NOTHING, SPEC, NOTHING, 0, 2),
    }
}

// The number that turns a record away from its place: 2 too soon or too late, 5 before any line, 4 one too many; none where it fits.
pub fn unfit_for(kind: Kind, so: Sofar) -> Option<u32>
    ensures { result ≡ turning (unfit kind so) }
{
    if (so.stage < kind.earliest) | (kind.latest < so.stage) {
        return Some(2);
    }
    if (LINE < kind.stage) & (so.lines == 0) {
        return Some(5);
    }
    if (kind.stage == so.stage) & (kind.most <= so.count) {
        return Some(4);
    }
    None
}
