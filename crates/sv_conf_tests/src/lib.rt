//! What configurations are read as, in tables of texts with the values that they tell, and how they are loaded from files. A crate of their own,
//! so that what they test is proved once.
#![tactic(auto)]

#[cfg(test)]
mod checks;
#[cfg(test)]
mod example_tests;
#[cfg(test)]
mod limit_tests;
#[cfg(test)]
mod load_tests;
#[cfg(test)]
mod sizes_tests;
#[cfg(test)]
mod tests;
