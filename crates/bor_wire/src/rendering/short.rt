//! The bodies of refusals and of replies to changes, into room that was reserved.

ghost use Rattle.std.specs.Prelude.{◌≡◌, ◌≤◌, ◌+◌, ◌++◌, ℕ, ℤ, List, Option, IfSome, length, false, vec_len, vec_capacity};
ghost use Rattle.std.specs.Option.{option_map};
ghost use Rattle.bor_register.specs.declared.filing.State.{State};
ghost use Rattle.bods_read.specs.Words.{field_word};
ghost use Rattle.bor_desk.specs.Laws.{is_long};
ghost use Rattle.bor_desk.specs.Refusals as desk;
ghost use Rattle.bor_http.specs.Incoming.Words as wire;
ghost use Rattle.bor_wire.specs.Rendering.Limits.{short_room};
ghost use Rattle.bor_wire.specs.Rendering.Bodies.{filing_text, moved_text, agent_text, refusal_text, desk_body, desk_refusal_text, wire_refusal_text};
ghost use Rattle.bor_wire.specs.Rendering.Parts.{field_member, place_member};

use crate::rendering::room::{put, put_day, put_number, put_quoted};
use bor_desk::operations::State;
use bor_desk::{DeskReply, Refusal};
use bor_terms::{AgentName, Day};

#[tactic(auto, unfolding(crate::specs::Rendering::Bodies::filing_text, json::specs::Print::escape_byte), using(crate::proofs::OnRendering::ShortTexts::state_short))]
fn put_filing(out: &mut Vec<u8>, due: Day, number: u32, state: State)
    requires { vec_len out.old + short_room ≤ vec_capacity out.old }
    ensures items { out.new.items ≡ out.old.items ++ filing_text due number state }
    ensures len { vec_len out.new ≤ vec_len out.old + short_room }
    ensures capacity { vec_capacity out.old ≤ vec_capacity out.new }
{
    put(out, b"{\"due\":");
    put_day(out, due);
    put(out, b",\"filing\":");
    put_number(out, number);
    put(out, b",\"state\":");
    put_quoted(out, state.as_str().as_bytes());
    put(out, b"}");
}

#[tactic(auto, unfolding(crate::specs::Rendering::Bodies::moved_text, json::specs::Print::escape_byte))]
fn put_moved(out: &mut Vec<u8>, day: Day)
    requires { vec_len out.old + short_room ≤ vec_capacity out.old }
    ensures items { out.new.items ≡ out.old.items ++ moved_text day }
    ensures len { vec_len out.new ≤ vec_len out.old + short_room }
    ensures capacity { vec_capacity out.old ≤ vec_capacity out.new }
{
    put(out, b"{\"day\":");
    put_day(out, day);
    put(out, b"}");
}

#[tactic(auto, unfolding(crate::specs::Rendering::Bodies::agent_text, json::specs::Print::escape_byte), using(crate::proofs::OnRendering::ShortTexts::name_short))]
fn put_agent(out: &mut Vec<u8>, name: &AgentName)
    requires { vec_len out.old + short_room ≤ vec_capacity out.old }
    ensures items { out.new.items ≡ out.old.items ++ agent_text name.now }
    ensures len { vec_len out.new ≤ vec_len out.old + short_room }
    ensures capacity { vec_capacity out.old ≤ vec_capacity out.new }
{
    let name = name.as_str();
    put(out, b"{\"agent\":");
    put_quoted(out, name.as_bytes());
    put(out, b"}");
}

fn put_field(out: &mut Vec<u8>, field: Option<&str>)
    requires room { vec_len out.old + 120 ≤ vec_capacity out.old }
    requires short { IfSome field (λ field. length field.now ≤ 18) }
    ensures items { out.new.items
        ≡ out.old.items ++ field_member (option_map (λ s. s.now) field.entry) }
    ensures len { vec_len out.new ≤ vec_len out.old + 120 }
    ensures capacity { vec_capacity out.old ≤ vec_capacity out.new }
{
    if let Some(field) = field {
        put(out, b"\"field\":");
        put_quoted(out, field.as_bytes());
        put(out, b",");
    }
}

fn put_place(out: &mut Vec<u8>, place: Option<u32>)
    requires { vec_len out.old + 20 ≤ vec_capacity out.old }
    ensures items { out.new.items ≡ out.old.items ++ place_member place }
    ensures len { vec_len out.new ≤ vec_len out.old + 20 }
    ensures capacity { vec_capacity out.old ≤ vec_capacity out.new }
{
    if let Some(place) = place {
        put(out, b"\"place\":");
        put_number(out, place);
        put(out, b",");
    }
}

// Writes a refusal by its name, of 15 bytes at most, with its field and its place where it has
// them.
fn put_refusal(out: &mut Vec<u8>, name: &str, place: Option<u32>, field: Option<&str>)
    requires room { vec_len out.old + short_room ≤ vec_capacity out.old }
    requires name { length name.now ≤ 15 }
    requires short { IfSome field (λ field. length field.now ≤ 18) }
    ensures items { out.new.items
        ≡ out.old.items ++ refusal_text name.now place (option_map (λ s. s.now) field.entry) }
    ensures len { vec_len out.new ≤ vec_len out.old + short_room }
    ensures capacity { vec_capacity out.old ≤ vec_capacity out.new }
{
    put(out, b"{");
    put_field(out, field);
    put_place(out, place);
    put(out, b"\"refusal\":");
    put_quoted(out, name.as_bytes());
    put(out, b"}");
}

// The name of the field that a refusal of the desk is about.
#[tactic(auto, using(crate::proofs::OnRendering::ShortTexts::field_short))]
fn field_of(refusal: Refusal) -> Option<&'static str>
    ensures value { option_map (λ s. s.now) result
        ≡ option_map field_word (desk.refusal_field refusal) }
    ensures short { IfSome result (λ field. length field.now ≤ 18) }
{
    match refusal.field() {
        Some(field) => Some(field.as_str()),
        None => None,
    }
}

#[tactic(auto, using(crate::proofs::OnRendering::ShortTexts::refusal_short))]
fn put_desk_refusal(out: &mut Vec<u8>, refusal: Refusal)
    requires { vec_len out.old + short_room ≤ vec_capacity out.old }
    ensures items { out.new.items ≡ out.old.items ++ desk_refusal_text refusal }
    ensures len { vec_len out.new ≤ vec_len out.old + short_room }
    ensures capacity { vec_capacity out.old ≤ vec_capacity out.new }
{
    put_refusal(out, refusal.name(), refusal.place(), field_of(refusal));
}

// The name in a query that a refusal is about.
#[tactic(auto, using(crate::proofs::OnRendering::ShortTexts::query_short))]
fn query_name_of(refusal: bor_http::incoming::Refusal) -> Option<&'static str>
    ensures value { option_map (λ s. s.now) result
        ≡ option_map wire.name_word (wire.refused_name refusal) }
    ensures short { IfSome result (λ name. length name.now ≤ 18) }
{
    match refusal.name() {
        Some(name) => Some(name.as_str()),
        None => None,
    }
}

/// Writes what is said of bytes that spell no request.
#[tactic(auto, using(crate::proofs::OnRendering::ShortTexts::wire_refusal_short))]
pub(crate) fn put_wire_refusal(out: &mut Vec<u8>, refusal: bor_http::incoming::Refusal)
    requires { vec_len out.old + short_room ≤ vec_capacity out.old }
    ensures items { out.new.items ≡ out.old.items ++ wire_refusal_text refusal }
    ensures len { vec_len out.new ≤ vec_len out.old + short_room }
    ensures capacity { vec_capacity out.old ≤ vec_capacity out.new }
{
    put_refusal(out, refusal.as_str(), None, query_name_of(refusal));
}

/// Writes the body of a reply that isn't to a request that only reads.
pub(crate) fn put_body(out: &mut Vec<u8>, reply: &DeskReply)
    requires room { vec_len out.old + short_room ≤ vec_capacity out.old }
    requires short { is_long reply.now ≡ false }
    ensures items { out.new.items ≡ out.old.items ++ desk_body reply.now }
    ensures len { vec_len out.new ≤ vec_len out.old + short_room }
    ensures capacity { vec_capacity out.old ≤ vec_capacity out.new }
{
    match reply {
        DeskReply::Lodged(lodged) => put_filing(out, lodged.due, lodged.number, lodged.state),
        DeskReply::Withdrawn(line) => put_filing(out, line.due, line.number, line.state),
        DeskReply::Day(day) => put_moved(out, *day),
        DeskReply::Enrolled(name) | DeskReply::Renewed(name) => put_agent(out, name),
        DeskReply::Refused(refusal) => put_desk_refusal(out, *refusal),
        DeskReply::Failed(_) => put_refusal(out, "StoreFault", None, None),
        _ => {}
    }
}
