// Specs only: what holds of every merged day, and the merged day that takes the first-named trace first.
#![tactic(auto)]
