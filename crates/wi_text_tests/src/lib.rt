//! Tests of what is read from texts: expressions and their automata, queries, the words of a command line. They need no more
//! than the public interface, and stand in a crate of their own because a crate with tests is proved once without them and
//! once with them.
#![tactic(auto)]

#[cfg(test)]
mod nfa;
#[cfg(test)]
mod policies;
#[cfg(test)]
mod query;
#[cfg(test)]
mod regex;
#[cfg(test)]
mod ring;
#[cfg(test)]
mod strict;
#[cfg(test)]
mod syntax;
#[cfg(test)]
mod text;
#[cfg(test)]
mod tree;
#[cfg(test)]
mod words;
