// The whole galley, record by record: each in its place, with the first refusal. Nothing is copied and nothing is written. Document 01,
// "The galley file".
#![tactic(auto)]

ghost use Rattle.std.specs.Prelude.{◌≡◌, ◌+◌, ◌≤◌};
ghost use Rattle.galley.specs.declared.Record.TheVariants as records;
ghost use Rattle.galley.specs.Record.{is_second, spec_of};
ghost use Rattle.galley.specs.Whole.{Small, Fitting, Opened, beginning, moved, refused, with_folio, with_line, with_figure, with_table, cited, galley_so_far, closed, after, step_from, galley_of};

use galley::{Galley, Kind, Reading, Record, Sofar, Spec, Step, Stream, Unread};
use model::answer::Refusal;
use std::ops::ControlFlow;

pub mod reader; // reader.rt: the reader over the lent bytes

// Nothing was read yet.
fn beginning() -> Sofar
    ensures { result ≡ beginning }
{
    Sofar {
        stage: galley::place::NOTHING,
        count: 0,
        last: 0,
        at: 0,
        folio: 1,
        first: 0,
        lines: 0,
        figures: 0,
        tables: 0,
    }
}

// A specification or a folio more: the text is still to come, after it.
fn with_folio(so: Sofar, folio: u32) -> Sofar
    ensures { result ≡ with_folio so folio }
{
    Sofar {
        folio,
        first: so.at,
        ..so
    }
}

// One line more.
fn with_line(so: Sofar) -> Sofar
    ensures { result ≡ with_line so }
{
    Sofar {
        lines: so.count,
        ..so
    }
}

// One figure more, whose citation is the last.
fn with_figure(so: Sofar, cite: usize) -> Sofar
    ensures { result ≡ with_figure so cite }
{
    Sofar {
        figures: so.count,
        last: cite,
        ..so
    }
}

// One table more, whose citation is the last.
fn with_table(so: Sofar, cite: usize) -> Sofar
    ensures { result ≡ with_table so cite }
{
    Sofar {
        tables: so.count,
        last: cite,
        ..so
    }
}

// One record more of a kind: its stage is reached, and the next record is due after it. Counts and citations begin anew with a stage.
fn moved(so: Sofar, kind: Kind) -> Sofar
    requires { (Small so) × (kind.size ≤ 34) }
    ensures { result ≡ moved so kind }
{
    let same = kind.stage == so.stage;
    Sofar {
        stage: kind.stage,
        count: if same { so.count + 1 } else { 1 },
        last: if same { so.last } else { 0 },
        at: so.at + kind.size,
        ..so
    }
}

// Reading is done with a refusal.
fn refused(number: u32, at: usize) -> Step
    requires { at ≤ 100000 }
    ensures { result ≡ refused number at }
{
    ControlFlow::Break(Err(Refusal {
        number,
        place: at as u32,
    }))
}

// One float more, if its citation is right: 6, then 7.
#[tactic(auto, unfolding(galley::specs::Whole::cited))]
fn cited(so: Sofar, cite: usize, next: Sofar, at: usize) -> Step
    requires { at ≤ 100000 }
    ensures { result ≡ cited so cite next at }
{
    let beyond = cite == 0 || so.lines < cite;
    if beyond {
        return refused(6, at);
    }
    if cite < so.last {
        return refused(7, at);
    }
    ControlFlow::Continue(next)
}

// The galley of a specification, and of streams that follow one another.
fn galley_so_far(spec: Spec, so: Sofar) -> Galley
    requires { Fitting so }
    ensures { result ≡ galley_so_far spec so }
{
    let figures = so.first + so.lines * 18;
    let tables = figures + so.figures * 18;
    Galley {
        spec,
        folio: so.folio,
        text: Stream {
            first: so.first,
            count: so.lines,
        },
        figures: Stream {
            first: figures,
            count: so.figures,
        },
        tables: Stream {
            first: tables,
            count: so.tables,
        },
    }
}

// The specification at the start of the bytes. A call of its own: with its fields of four bytes inlined in `read_galley`, the compiler keeps
// the numbers of a `Sofar` as halves, and each record splits and joins them.
#[inline(never)]
fn opening_spec(s: &[u8]) -> Spec
    requires { Opened s.now }
    ensures { result ≡ spec_of (is_second s.now 0) s.now 0 }
{
    let second = galley::word::mark_at(s, 0) == galley::place::G2;
    records::spec_of(s, 0, second)
}

// The end, if nothing follows it: 8. The specification is read at the start of the bytes.
#[tactic(auto, unfolding(galley::specs::Whole::closed))]
fn closed(s: &[u8], so: Sofar) -> Step
    requires { (Fitting so) × (Opened s.now) }
    ensures { result ≡ closed s.now so }
{
    if so.at < s.len() {
        return refused(8, so.at);
    }
    let spec = opening_spec(s);
    ControlFlow::Break(Ok(galley_so_far(spec, so)))
}

// How reading goes on after the record at an offset.
#[tactic(auto, unfolding(galley::specs::Whole::after))]
fn after(s: &[u8], so: Sofar, found: Result<Record, Unread>, at: usize) -> Step
    requires { (at ≤ 100000) × (Fitting so) × (found ≡ Ok records.End → Opened s.now) }
    ensures { result ≡ after s.now so at found }
{
    match found {
        Ok(Record::Spec(_)) => ControlFlow::Continue(with_folio(so, 1)),
        Ok(Record::Folio(f)) => ControlFlow::Continue(with_folio(so, f)),
        Ok(Record::Line(_)) => ControlFlow::Continue(with_line(so)),
        Ok(Record::Figure(f)) => {
            let cite = f.cite as usize;
            cited(so, cite, with_figure(so, cite), at)
        }
        Ok(Record::Table(f)) => {
            let cite = f.cite as usize;
            cited(so, cite, with_table(so, cite), at)
        }
        Ok(Record::End) => closed(s, so),
        Err(unread) => refused(unread.number, at),
    }
}

// The next record, in its place.
#[tactic(auto, using(galley::proofs::laws::Place::kind_sized, galley::proofs::laws::Step::end_begun), unfolding(galley::specs::Whole::step_from))]
fn step_from(s: &[u8], so: Sofar) -> Step
    requires { (Small so) × (1 ≤ so.stage → Opened s.now) }
    ensures { result ≡ step_from s.now so }
{
    let at = so.at;
    if s.len().saturating_sub(at) < 2 {
        return refused(1, at);
    }
    let kind = galley::place::kind_of(galley::word::mark_at(s, at));
    if let Some(number) = galley::place::unfit_for(kind, so) {
        return refused(number, at);
    }
    let found = crate::reader::read_record(s, at);
    after(s, moved(so, kind), found, at)
}

// The galley that any bytes hold, or the first refusal with its place.
#[tactic(auto, using(galley::proofs::laws::Underway::underway_none, galley::proofs::laws::Underway::underway_small, galley::proofs::laws::Underway::underway_opened, galley::proofs::laws::Underway::underway_farther, galley::proofs::laws::Underway::underway_on, galley::proofs::laws::Underway::underway_done))]
pub fn read_galley(s: &[u8]) -> Reading
    ensures { result ≡ galley_of s.now }
{
    let mut so = beginning();
    loop {
        match step_from(s, so) {
            ControlFlow::Continue(next) => so = next,
            ControlFlow::Break(reading) => return reading,
        }
    }
}
