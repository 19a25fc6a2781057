//! The decoder of RV32I words and of the C extension's parcels, as far as control flow needs them.
//!
//! `decode` gives the kind of one word, `pair` reads an AUIPC and the JALR after it as one jump, and `link_of` names
//! the register that a jump links by. `length_of` says how long an instruction is that begins with a parcel of 16
//! bits, `decode_parcel` gives the kind of one of two bytes, and `widen` the JALR that a C.JR or C.JALR stands for.
//! Each gives exactly what `riscv_spec` defines, so that the layers above speak of definitions alone. The functions
//! named `_round_trip` are laws of those definitions: an instruction that is put together by the formats of the RISC-V
//! unprivileged manual is read back with the same immediate; those named `_encoded_again` are the same the other way
//! round. Nothing takes memory.
#![tactic(auto)]

mod field;
mod immediate;
mod kinds;
mod laws;
mod opcodes;
mod pairs;
mod parcel;
mod parcel_kinds;
mod parcel_laws;

pub use kinds::{decode, link_of};
pub use laws::{
    auipc_round_trip, branch_round_trip, jal_round_trip, jalr_round_trip, pair_round_trip,
    worked_words,
};
pub use pairs::pair;
pub use parcel::{length_of, widen};
pub use parcel_kinds::decode_parcel;
pub use parcel_laws::{
    cb_encoded_again, cb_round_trip, cj_encoded_again, cj_round_trip, cr_encoded_again,
    cr_round_trip, worked_parcels,
};
pub use riscv_spec::{Isa, Kind, Length, Link};

#[cfg(test)]
mod parcel_tests;
#[cfg(test)]
mod tests;
