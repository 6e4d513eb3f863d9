// Cyclic redundancy checks: CRC-8 (x^8 + x^2 + x + 1, highest bit first) and CRC-32 (IEEE 802.3).

#![tactic(auto)]

pub mod crc32;
pub mod crc8;
mod crc8_table;
mod lane_tables;
mod lanes;
mod tables;
mod word_tables;
mod words;
