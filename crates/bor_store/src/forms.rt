//! That the values of statements have their forms, as the types of their parts tell. Each call is
//! made for its clause alone.

ghost use Rattle.std.specs.Prelude.{All};
ghost use Rattle.bods_read.specs.Forms.{IsFormedStatement, IsFormedDetails, IsFormedInterest, IsFormedIdentifier, IsIdent, IsFreeText, IsShare};
ghost use Rattle.bor_terms.specs.Day.{IsDay};
ghost use Rattle.std.specs.Prelude.{IfSome};

use bods_read::{Details, FreeText, Identifier, Interest, Statement};
use bor_terms::{Day, Ident, Span};

fn ident_formed(ident: &Ident)
    ensures { IsIdent ident.now }
{
    let _text = ident.as_str();
}

fn text_formed(text: &FreeText)
    ensures { IsFreeText text.now }
{
    let _text = text.as_str();
}

fn identifier_formed(identifier: &Identifier)
    ensures { IsFormedIdentifier identifier.now }
{
    text_formed(&identifier.scheme);
    text_formed(&identifier.id);
}

fn identifiers_formed(identifiers: &[Identifier])
    ensures { All IsFormedIdentifier identifiers.now }
{
    for identifier in identifiers {
        identifier_formed(identifier);
    }
}

fn share_formed(share: Option<Span>)
    ensures { IfSome share IsShare }
{
    if let Some(share) = share {
        let _high = share.high();
        let _above = share.above_half();
    }
}

fn day_formed(day: Option<Day>)
    ensures { IfSome day IsDay }
{
    if let Some(day) = day {
        let _number = day.number();
    }
}

fn interest_formed(interest: &Interest)
    ensures { IsFormedInterest interest.now }
{
    share_formed(interest.share);
    day_formed(interest.starts);
    day_formed(interest.ends);
}

fn interests_formed(interests: &[Interest])
    ensures { All IsFormedInterest interests.now }
{
    for interest in interests {
        interest_formed(interest);
    }
}

fn name_formed(name: &Option<FreeText>)
    ensures { IfSome name.now IsFreeText }
{
    if let Some(name) = name {
        text_formed(name);
    }
}

fn end_formed(end: &Option<Ident>)
    ensures { IfSome end.now IsIdent }
{
    if let Some(end) = end {
        ident_formed(end);
    }
}

fn details_formed(details: &Details)
    ensures { IsFormedDetails details.now }
{
    match details {
        Details::Entity {
            name,
            identifiers,
            ..
        } => {
            name_formed(name);
            identifiers_formed(identifiers.as_slice());
        }
        Details::Person { name, .. } => name_formed(name),
        Details::Relationship {
            subject,
            party,
            interests,
        } => {
            end_formed(subject);
            end_formed(party);
            interests_formed(interests.as_slice());
        }
    }
}

fn statement_formed(statement: &Statement)
    ensures { IsFormedStatement statement.now }
{
    ident_formed(&statement.id);
    let _day = statement.day.number();
    ident_formed(&statement.declaration);
    ident_formed(&statement.rec);
    details_formed(&statement.details);
}

/// Statements have their forms. The call does nothing.
pub(crate) fn all_formed(statements: &[Statement])
    ensures { All IsFormedStatement statements.now }
{
    for statement in statements {
        statement_formed(statement);
    }
}
