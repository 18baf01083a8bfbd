// The tally of the papers gone through so far, one paper at a time.
#![tactic(auto)]

ghost use Rattle.std.specs.Prelude.{◌≡◌, ◌<◌};
ghost use Rattle.report.specs.Tally.{no_papers, below_with, totals_with, with_paper, Within};

use crate::{Mark, Totals};

// 10,000 numbers of 32 bits come to less than 2⁴⁶.
pub type Total = u64;

// What the papers come to, and the first of them, counted from 1, whose T is below the engine's.
#[derive(Clone, Copy)]
pub struct Tally {
    pub totals: Totals,
    pub below: Option<Total>,
}

impl Totals {
    // One paper more. The least T of the first is its own, since there is none before it; one that is below its engine has no turns
    // above it, and the report will refuse it.
    #[tactic(auto, unfolding(crate::specs::Tally::totals_with, crate::specs::Tally::least_with))]
    fn add(&mut self, m: &Mark)
        requires { (self.old.papers < 10000) × Within self.old }
        ensures { (self.new ≡ totals_with m.now self.old) × Within self.new }
    {
        let turns = Total::from(m.turns);
        self.pages += Total::from(m.pages);
        self.x += Total::from(m.x);
        self.y += Total::from(m.y);
        self.turns += turns;
        self.least = if self.papers == 0 {
            turns
        } else {
            self.least.min(turns)
        };
        self.greatest = self.greatest.max(turns);
        self.excess += Total::from(m.turns.saturating_sub(m.engine));
        self.papers += 1;
        self.count = self.papers;
    }
}

impl Tally {
    pub fn none() -> Tally
        ensures { result ≡ no_papers }
    {
        Tally {
            totals: Totals {
                papers: 0,
                pages: 0,
                x: 0,
                y: 0,
                turns: 0,
                least: 0,
                greatest: 0,
                excess: 0,
                count: 0,
            },
            below: None,
        }
    }

    // One paper more: once one is below its engine, that is the first.
    #[tactic(auto, unfolding(crate::specs::Tally::below_with, crate::specs::Tally::totals_with))]
    pub fn add(&mut self, m: &Mark)
        requires { (self.old.totals.papers < 10000) × Within self.old.totals }
        ensures { (self.new ≡ with_paper m.now self.old) × Within self.new.totals }
    {
        self.totals.add(m);
        if self.below.is_none() && m.turns < m.engine {
            self.below = Some(self.totals.papers);
        }
    }
}
