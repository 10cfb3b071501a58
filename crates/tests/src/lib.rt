//! Tests of what no clause says and no row of the program `rows` can name.
#![tactic(auto)]

#[cfg(test)]
mod builds;
#[cfg(test)]
mod chunks;
#[cfg(test)]
mod counts;
#[cfg(test)]
mod ends;
#[cfg(test)]
mod faults;
#[cfg(test)]
mod many;
#[cfg(test)]
mod moves;
#[cfg(test)]
mod paged;
#[cfg(test)]
mod programs;
#[cfg(test)]
mod replaces;
#[cfg(test)]
mod searchers;
#[cfg(test)]
mod searches;
#[cfg(test)]
mod shown;
#[cfg(test)]
mod states;
#[cfg(test)]
mod values;
#[cfg(test)]
mod words;
