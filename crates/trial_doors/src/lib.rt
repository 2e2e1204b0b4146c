// Five doors that no program goes through, each called over an accepted sheet and over a refusal that no judge gives. What they have to write is document 01's listing,
// the figure of README.md's first example, what `second` makes of the form `walk` under tests/forms/, or counted by hand.
#![tactic(auto)]

#[cfg(test)]
mod tests;
