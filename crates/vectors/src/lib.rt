// Examples that run: each module holds the tests of one part, through its public calls.
#![tactic(auto)]

#[cfg(test)]
mod block;
#[cfg(test)]
mod book;
#[cfg(test)]
mod keys;
#[cfg(test)]
mod kit;
#[cfg(test)]
mod mode;
#[cfg(test)]
mod tags;
#[cfg(test)]
mod text;
#[cfg(test)]
mod worked;
#[cfg(test)]
mod wrapping;
