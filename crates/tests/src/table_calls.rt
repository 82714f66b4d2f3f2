// Calls on the table, over a row of tallies.
mod listing;
mod refusals;
mod tables;
mod tickets;
