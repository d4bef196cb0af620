//! The tests of the libraries of the plane and of triangulations, from fractions up to layers that are carried.
//! They are above the libraries, so that these are proved without them, and once.
#![tactic(auto)]

#[cfg(test)]
mod affine_image_tests;
#[cfg(test)]
mod carry_map_layer_tests;
#[cfg(test)]
mod carry_map_tests;
#[cfg(test)]
mod cell_grid_tests;
#[cfg(test)]
mod frac128_tests;
#[cfg(test)]
mod made_tins;
#[cfg(test)]
mod meet_rel_piece_tests;
#[cfg(test)]
mod meet_rel_tests;
#[cfg(test)]
mod nearness;
#[cfg(test)]
mod plane_base_tests;
#[cfg(test)]
mod seg_gap_tests;
#[cfg(test)]
mod seg_walk_tests;
#[cfg(test)]
mod tin_base_tests;
#[cfg(test)]
mod tin_check_tests;
#[cfg(test)]
mod tin_index_tests;
#[cfg(test)]
mod topo_check_copy_tests;
#[cfg(test)]
mod topo_check_pair_tests;
#[cfg(test)]
mod topo_check_tests;
