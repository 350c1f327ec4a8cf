use gx_waits::Claim;

/// A lock that is held. Later holds have greater numbers.
#[derive(Clone, Copy)]
pub struct Hold {
    pub number: u64,
    pub claim: Claim,
}
