// What a record asks for, by its tag, and how many bytes it has behind its tag and length.
ghost use Rattle.std.specs.Prelude.{◌≡◌, true, ◌≤◌, length};
ghost use Rattle.mi_calls.specs.Sizes.{least_of_endpoint, least_of_requester, least_size};
ghost use Rattle.mi_calls.specs.Tags.{Decodes};

#[derive(Clone, Copy)]
pub enum EndpointCall {
    Setup,
    Receive,
    Take,
    Read,
    Complete,
    Poll,
    Timeout,
    Reset,
    Look,
    Declare,
}

#[derive(Clone, Copy)]
pub enum RequesterCall {
    Setup,
    Await,
    Cut,
    Primitive,
    Receive,
    Look,
}

// A call of one end, or how much of its stores is lent from here on.
#[derive(Clone, Copy)]
pub enum Tag {
    EndpointStores,
    Endpoint(EndpointCall),
    RequesterStore,
    Requester(RequesterCall),
}

// A tag that no record has.
#[derive(Clone, Copy)]
pub struct UnknownTag(pub u8);

impl TryFrom<u8> for Tag {
    type Error = UnknownTag;

    ghost try_from_gives = { Decodes };

    #[tactic(auto, unfolding(crate::specs::Tags::is_tag))]
    fn try_from(tag: u8) -> Result<Self, UnknownTag> {
        match tag {
            16 => Ok(Tag::Endpoint(EndpointCall::Setup)),
            17 => Ok(Tag::EndpointStores),
            18 => Ok(Tag::Endpoint(EndpointCall::Receive)),
            19 => Ok(Tag::Endpoint(EndpointCall::Take)),
            20 => Ok(Tag::Endpoint(EndpointCall::Read)),
            21 => Ok(Tag::Endpoint(EndpointCall::Complete)),
            22 => Ok(Tag::Endpoint(EndpointCall::Poll)),
            23 => Ok(Tag::Endpoint(EndpointCall::Timeout)),
            24 => Ok(Tag::Endpoint(EndpointCall::Reset)),
            25 => Ok(Tag::Endpoint(EndpointCall::Look)),
            32 => Ok(Tag::Requester(RequesterCall::Setup)),
            33 => Ok(Tag::RequesterStore),
            34 => Ok(Tag::Requester(RequesterCall::Await)),
            35 => Ok(Tag::Requester(RequesterCall::Cut)),
            36 => Ok(Tag::Requester(RequesterCall::Primitive)),
            37 => Ok(Tag::Requester(RequesterCall::Receive)),
            38 => Ok(Tag::Requester(RequesterCall::Look)),
            48 => Ok(Tag::Endpoint(EndpointCall::Declare)),
            _ => Err(UnknownTag(tag)),
        }
    }
}

// The longest record's bytes, without tag and length.
const LONGEST: usize = 8192;

// A setup has the EID alone, or the unit's two bytes behind it.
fn is_setup(n: usize) -> bool
    ensures { result ≡ true → 1 ≤ n }
{
    n == 1 || n == 3
}

impl EndpointCall {
    // A record of the endpoint with this call may have so many bytes.
    fn is_record(self, n: usize) -> bool
        ensures { result ≡ true → least_of_endpoint self ≤ n }
    {
        match self {
            EndpointCall::Setup => is_setup(n),
            EndpointCall::Receive => n <= LONGEST,
            EndpointCall::Take | EndpointCall::Read | EndpointCall::Timeout => n == 4,
            EndpointCall::Complete => n >= 8 && n <= LONGEST,
            EndpointCall::Poll => n == 2,
            EndpointCall::Reset | EndpointCall::Look => n == 0,
            EndpointCall::Declare => n == 9,
        }
    }
}

impl RequesterCall {
    // A record of the requester with this call may have so many bytes.
    fn is_record(self, n: usize) -> bool
        ensures { result ≡ true → least_of_requester self ≤ n }
    {
        match self {
            RequesterCall::Setup => is_setup(n),
            RequesterCall::Await => n == 2,
            RequesterCall::Cut => n >= 4 && n <= LONGEST,
            RequesterCall::Primitive => n == 12,
            RequesterCall::Receive => n <= LONGEST,
            RequesterCall::Look => n == 0,
        }
    }
}

// What a declaration says: that the command can still be stopped, 1, or that it no longer can, 0. None: another number.
pub(crate) fn mark(body: &[u8]) -> Option<bool>
    requires { 9 ≤ length body.now }
{
    match body[8] {
        0 => Some(false),
        1 => Some(true),
        _ => None,
    }
}

impl Tag {
    // A record with this tag may have so many bytes.
    pub(crate) fn is_record(self, n: usize) -> bool
        ensures { result ≡ true → least_size self ≤ n }
    {
        match self {
            Tag::EndpointStores => n == 4,
            Tag::Endpoint(call) => call.is_record(n),
            Tag::RequesterStore => n == 2,
            Tag::Requester(call) => call.is_record(n),
        }
    }

    // With this tag these bytes are a declaration that says neither.
    pub(crate) fn is_no_mark(self, body: &[u8]) -> bool
        requires { least_size self ≤ length body.now }
    {
        match self {
            Tag::Endpoint(EndpointCall::Declare) => mark(body).is_none(),
            _ => false,
        }
    }
}
