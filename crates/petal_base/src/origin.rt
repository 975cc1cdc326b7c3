//! Which write of a client a put is for.

ghost use Rattle.std.specs.Prelude.{◌≡◌, ◌<◌};
ghost use Rattle.petal_base.specs.Limits.{client_limit};

use crate::{ClientId, Seq};
use std::marker::Model;

/// The write of a client that a put is for: the link of its block, the client, and the number of its request. The client is one of a
/// script's, not the operator.
#[derive(Clone, Copy, Debug, PartialEq, Eq)]
pub struct Origin {
    link: u8,
    client: ClientId,
    seq: Seq,
}

impl Model for Origin {
    ghost use Rattle.std.specs.Prelude.{◌<◌};
    ghost use Rattle.petal_base.specs.Limits.{client_limit};
    ghost use Rattle.petal_base.specs.Origins.{Named};

    ghost Value = { Named };

    ghost view = { λ o. record { link = o.link; client = o.client; seq = o.seq } };

    ghost invariant = { λ o. o.client < client_limit };

    ghost inverse = { λ n. record { link = n.link; client = n.client; seq = n.seq } };
}

impl Origin {
    pub fn new(link: u8, client: ClientId, seq: Seq) -> Origin
        requires { client < client_limit }
        ensures { result ≡ record { link = link; client = client; seq = seq } }
    {
        Origin { link, client, seq }
    }

    pub fn link(&self) -> u8
        ensures { result ≡ self.now.link }
    {
        self.link
    }

    pub fn client(&self) -> ClientId
        ensures value { result ≡ self.now.client }
        ensures below { result < client_limit }
    {
        self.client
    }

    pub fn seq(&self) -> Seq
        ensures { result ≡ self.now.seq }
    {
        self.seq
    }
}
