// Rule 13's arithmetic on floats: the nearest double of a whole number, the nearest double of w x 10^p, and the
// nearest single of a double. Every contract is against the float library's rounding of the exact fraction.
#![tactic(auto)]

pub mod decimal;
pub mod nearest;
pub mod single;
