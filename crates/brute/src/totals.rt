// What all rounds compared.
use crate::round::Seen;
use std::fmt;

#[derive(Clone, Copy, Default)]
pub struct Totals {
    rounds: u64,
    layered: u64,
    idle: u64,
    conditions: u64,
    refused: u64,
    candidates: u64,
    joint: u64,
    links: u64,
}

impl Totals {
    // Counts a round.
    pub fn add(&mut self, seen: Seen, has_layers: bool) {
        self.rounds = self.rounds.saturating_add(1);
        self.layered = self.layered.saturating_add(u64::from(has_layers));
        self.idle = self.idle.saturating_add(u64::from(seen.candidates == 0));
        self.conditions = self.conditions.saturating_add(seen.conditions);
        self.refused = self.refused.saturating_add(seen.refused);
        self.candidates = self.candidates.saturating_add(seen.candidates);
        self.joint = self.joint.saturating_add(seen.joint);
        self.links = self.links.saturating_add(seen.links);
    }
}

impl fmt::Display for Totals {
    fn fmt<W: fmt::Write>(&self, f: &mut fmt::Formatter<W>) -> fmt::Result {
        let Totals {
            rounds,
            layered,
            idle,
            conditions,
            refused,
            candidates,
            joint,
            links,
        } = *self;
        writeln!(
            f,
            "compared {rounds} rounds: {layered} with layers, {idle} without a candidate"
        )?;
        writeln!(f, "{conditions} conditions in drafts, {refused} refused")?;
        write!(
            f,
            "{candidates} candidates, {joint} of which no pair has exactly, and {links} links"
        )
    }
}
