// Jobs and their steps, over a row of tallies.
mod entering;
mod orders;
mod rules_of_a_step;
mod shifts;
