//! Whether a response has the questions of its request.
ghost use Rattle.std.specs.Prelude.{◌≡◌, ◌&&◌};
ghost use Rattle.std.specs.List.{list_all, list_any};
ghost use Rattle.dns_model.specs.Names.{Labels};
ghost use Rattle.dns_model.specs.Records.{question_eq};
ghost use Rattle.dns_udp.specs.Questions.{asks_alike, is_spelled_alike, spells_alike};

use dns_record::{Name, Query};

/// Whether a question is one of the request's.
fn is_asked(asked: &[Query], query: &Query) -> bool
    ensures { result ≡ list_any (λ a. question_eq a query.now) asked.now }
{
    asked.contains(query)
}

/// Whether each question is one of the request's.
fn are_asked(asked: &[Query], found: &[Query]) -> bool
    ensures { result ≡ list_all (λ q. list_any (λ a. question_eq a q) asked.now) found.now }
{
    found.iter().all(|query| is_asked(asked, query))
}

/// Whether a response has as many questions as its request, each of them one of the request's (RFC 5452, 9.1).
pub fn asks_alike(asked: &[Query], found: &[Query]) -> bool
    ensures { result ≡ asks_alike asked.now found.now }
{
    asked.len() == found.len() && are_asked(asked, found)
}

/// Whether two names are the same bytes.
fn is_spelled_alike(one: &Name, other: &Name) -> bool
    ensures { result ≡ is_spelled_alike one.now other.now }
{
    one.eq_case(other)
}

/// Whether a question is one of the request's in the same letters.
fn is_spelled_in(asked: &[Query], query: &Query) -> bool
    ensures { result ≡ list_any (λ a. question_eq a query.now && is_spelled_alike a.owner query.now.owner) asked.now }
{
    asked.iter().any(|next| *next == *query && is_spelled_alike(&next.name, &query.name))
}

/// Whether each question of a response is one of its request's, A to Z apart from a to z.
pub fn spells_alike(asked: &[Query], found: &[Query]) -> bool
    ensures { result ≡ spells_alike asked.now found.now }
{
    found.iter().all(|query| is_spelled_in(asked, query))
}
