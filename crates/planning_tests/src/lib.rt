//! Tests of planning: relaxations, searches, greedy sets and the order of recipes, worked by hand and drawn, beside the same computed plainly.
#![tactic(auto)]

#[cfg(test)]
mod drawn_recipes;
#[cfg(test)]
mod greedy_rows;
#[cfg(test)]
mod greedy_tables;
#[cfg(test)]
mod order_carried;
#[cfg(test)]
mod order_rows;
#[cfg(test)]
mod plain_greedy;
#[cfg(test)]
mod relaxation_rows;
#[cfg(test)]
mod relaxation_tables;
#[cfg(test)]
mod relaxations;
#[cfg(test)]
mod search_rows;
#[cfg(test)]
mod search_tables;
#[cfg(test)]
mod searches;
#[cfg(test)]
mod tables;
