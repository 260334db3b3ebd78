//! The response to a request.

ghost use Rattle.std.specs.Prelude.{◌≡◌, ℕ};
ghost use Rattle.desk.specs.Serving.{KeepsSettings};
ghost use Rattle.relay_http.specs.Request.{Request};
ghost use Rattle.relay_http.specs.Exchange.{IsPrepared};
ghost use Rattle.relay_http.specs.Prepared.{response_of};
ghost use Rattle.relay_http.specs.Receiving.{IsWantResponse};
ghost use Rattle.relay_http.specs.RequestBytes.{IsHttpRequest};
ghost use Rattle.relay_http.specs.Response.{code_of, written};

use crate::answering::answered;
use crate::outgoing::Outgoing;
use crate::prepared::{PreparedResponse, to_refusal};
use crate::received::Received;
use crate::routes::Routes;
use desk::{Desk, Keeper, Refusal};
use http::StatusCode;
use std::alloc::Global;

/// A response that is to be written.
#[derive(Drop)]
pub struct HttpResponse {
    /// The response's status.
    pub status: StatusCode,
    /// The desk's refusal that the response tells. Each 503 tells one.
    pub refusal: Option<Refusal>,
    /// The bytes of the response that have not gone out yet.
    pub rest: Outgoing,
}

impl HttpResponse {
    fn of(answer: PreparedResponse, with_body: bool) -> HttpResponse
        ensures status { result.status ≡ code_of (response_of answer).status }
        ensures told { result.refusal ≡ answer.refusal }
        ensures rest { result.rest ≡ written (response_of answer).status
            (response_of answer).body with_body }
    {
        HttpResponse {
            status: answer.status.code(),
            refusal: answer.refusal,
            rest: Outgoing::new(answer.status, answer.body, with_body),
        }
    }

    /// The response where memory ran out. Making it takes no memory.
    pub(crate) fn of_want(with_body: bool) -> HttpResponse
        ensures { IsWantResponse with_body result }
    {
        HttpResponse::of(to_refusal(Refusal::NoMemory), with_body)
    }
}

impl Received {
    /// The desk's response to the request whose bytes have come to a socket. Once a message is
    /// acknowledged no memory is taken.
    pub fn answer<K: Keeper>(
        self,
        alloc: Global,
        routes: &Routes,
        desk: &mut Desk<K>,
    ) -> HttpResponse
        ensures exchange { (request : Request ℕ)
            × IsHttpRequest self.come.offered self.come.bytes request
            × IsPrepared K.Keeper desk.old.roster desk.old.base desk.old.history
            desk.old.keeper desk.new.keeper request result.status result.refusal result.rest }
        ensures settings { KeepsSettings desk.old desk.new }
    {
        let request = self.come.request(routes);
        let answer = answered(alloc, desk, request.action);
        HttpResponse::of(answer, request.with_body)
    }

    /// The response where memory ran out before the desk was asked. Making it takes no memory.
    pub fn starve(self, routes: &Routes) -> HttpResponse
        ensures { (request : Request ℕ) × IsHttpRequest self.come.offered self.come.bytes request
            × IsWantResponse request.with_body result }
    {
        HttpResponse::of_want(self.come.request(routes).with_body)
    }
}
