//! Tests of the whole program with an outside that fails as planned, and of what the readers of reports and schedules
//! and the sets give. What the commands show is in `tests/`.
#![tactic(auto)]

#[cfg(test)]
mod failing;
#[cfg(test)]
mod outside;
#[cfg(test)]
mod reports;
#[cfg(test)]
mod scene;
#[cfg(test)]
mod schedules;
#[cfg(test)]
mod sets;
#[cfg(test)]
mod texts;
