// Tests of working out, of the best path and of unfolding it, on examples worked out by hand.

#![tactic(auto)]

#[cfg(test)]
mod broken;
#[cfg(test)]
mod examples;
#[cfg(test)]
mod finder;
#[cfg(test)]
mod places;
