// The language's edges: texts, and what a session of each prints.
#![tactic(auto)]

#[cfg(test)]
mod bytes;
#[cfg(test)]
mod commands;
#[cfg(test)]
mod cuts;
#[cfg(test)]
mod declarations;
#[cfg(test)]
mod expect;
#[cfg(test)]
mod limits;
#[cfg(test)]
mod numbers;
#[cfg(test)]
mod refused;
#[cfg(test)]
mod spacing;
#[cfg(test)]
mod special;
