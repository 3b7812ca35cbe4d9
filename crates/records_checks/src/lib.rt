// Records by example: an input for each refusal in the order of the tests, the shortest record and the longest.
#![tactic(auto)]

#[cfg(test)]
mod reading;
#[cfg(test)]
mod writing;
