//! Requests of HTTP/1.1 (RFC 9112): bytes are read to a request ([`incoming`]), and the routes say
//! what may be asked at its path ([`routes`]). What a request asks of the register is for
//! `bor_wire::spelling` to say: nothing here knows of one.
#![tactic(auto)]

pub mod incoming;
pub mod routes;
