// The edges of productions: texts, how each is refused, and what each that is taken enters.
#![tactic(auto)]

#[cfg(test)]
mod cuts;
#[cfg(test)]
mod elements;
#[cfg(test)]
mod entered;
#[cfg(test)]
mod expect;
#[cfg(test)]
mod forms;
#[cfg(test)]
mod largest;
#[cfg(test)]
mod lengths;
#[cfg(test)]
mod limits;
#[cfg(test)]
mod marks;
#[cfg(test)]
mod named;
#[cfg(test)]
mod places;
#[cfg(test)]
mod refused;
#[cfg(test)]
mod shown;
#[cfg(test)]
mod specificity;
#[cfg(test)]
mod symbols;
#[cfg(test)]
mod totals;
#[cfg(test)]
mod variables;
