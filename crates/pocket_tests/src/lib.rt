//! Tests of what only code can say: workers that wait for one another, connections and accepts that fail, a socket, a
//! database file, and adapters over the host. What a text can say stands in the programs of cases.
#![tactic(auto)]

#[cfg(test)]
mod adapters;
#[cfg(test)]
mod files;
#[cfg(test)]
mod held;
#[cfg(test)]
mod host;
#[cfg(test)]
mod served;
#[cfg(test)]
mod watched;
#[cfg(test)]
mod workers;
