//! The tables of a register in SQL: the texts that make, read and change them, each a constant.
//!
//! `specs/Texts/Tables` has the schema that the texts of [`tables`] make in an empty database.
//! `specs/Texts/Queries` and `specs/Texts/Changes` say what each other text means under that
//! schema, and `proofs/OnTexts` computes each meaning from its text.

pub mod changes;
pub mod queries;
pub mod tables;
