ghost use Rattle.std.specs.Prelude.{◌≡◌, ◌+◌, ◌-◌, ◌*◌, ◌^◌, ◌<◌, is_some, IfSome, nat_lt};

/// Numbers at equal distances: `count` of them from `first` on, none above the largest `u64`.
#[derive(Drop)]
pub struct Numbers {
    pub(crate) first: u64,
    pub(crate) step: u64,
    pub(crate) count: u16,
    ghost fits: { first + step * (count - 1) < 2 ^ 64 },
}

impl Numbers {
    /// The numbers, unless the last is too large.
    pub(crate) fn new(first: u64, step: u64, count: u16) -> Option<Numbers>
        ensures judged { is_some result ≡ nat_lt (first + step * (count - 1)) (2 ^ 64) }
        ensures made { IfSome result (λ n. (n.first ≡ first) × (n.step ≡ step) × (n.count ≡ count)) }
    {
        let reach = step.checked_mul(count.saturating_sub(1) as u64)?;
        first.checked_add(reach)?;
        Some(Numbers { first, step, count })
    }

    /// The number at a place, from 0.
    #[tactic(auto, using(crate::proofs::Reach::reach))]
    pub(crate) fn at(&self, i: u16) -> u64
        requires { i < self.now.count }
        ensures { result ≡ self.now.first + self.now.step * i }
    {
        self.first + self.step * i as u64
    }
}
