// The order of f64s, and that rounded operations keep it:
// laws only, by which ranges are shown and searches that cannot matter are left out. It has no function.
#![tactic(auto)]
