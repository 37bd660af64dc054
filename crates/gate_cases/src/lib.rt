//! Tests of cases beside each other: that two of them are at work at once, and that each number of workers gives one answer.
#![tactic(auto)]

#[cfg(test)]
mod both;
#[cfg(test)]
mod tests;
