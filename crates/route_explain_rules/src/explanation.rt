// The answer to why one router relies on another: types alone.

// The rule of a reliance. A better offer is `AnyOffer` where there is no own best client; else it carries the offer, the own best client
// and the margin, offer minus own.
#[derive(Clone, Copy)]
pub enum Rule {
    Parent,
    PeerClient,
    OwnBestClient,
    AnyOffer(usize),
    BetterOffer(usize, usize, i64),
}

// The first reason that applies, by its place in the order of the requirements. The fifth is no reason.
#[derive(Clone, Copy)]
pub enum Reason {
    SameRouter = 1,
    NotNeighbours = 2,
    FirstListed = 3,
    SecondUnlistedClient = 4,
    NotTheBestClient = 6,
    NoOffer = 7,
    NoWayToTheOffer = 8,
    OfferNotBetter = 9,
}

// Yes by a rule or no for a reason, or the refusal number of the call.
#[derive(Clone, Copy)]
pub enum Explanation {
    Refused(u8),
    Yes(Rule),
    No(Reason),
}

// The values of an explanation: yes or no; the number of the rule or of the reason; and of a better offer its route, whether it was
// compared with an own best client, that one's route and the margin. What an explanation does not have is zero or no.
#[derive(Clone, Copy)]
pub struct Values {
    pub relies: bool,
    pub code: u8,
    pub offer: usize,
    pub compared: bool,
    pub own: usize,
    pub margin: i64,
}
