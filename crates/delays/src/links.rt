// The links of pairs, from one pair to the next of a way. The contracts cite specs/WaysOut.antt.
ghost use Rattle.std.specs.Prelude.{◌≡◌, ◌+◌, ◌<◌, get_or, MatchOption};
ghost use Rattle.product.specs.Numbers.{most_pairs};
ghost use Rattle.delays.specs.WaysOut.{Links};

// For each pair the pair after it on its way, as 1 + its number, or 0; and the label of the step between the two. The lists are lent by the crate
// `pairs`, which knows nothing of what the type says of them here.
#[derive(Clone, Copy)]
pub struct PairLinks<'a> {
    pub link: &'a [u16],
    pub label: &'a [u32],
    ghost links: { Links link.now label.now },
}

impl PairLinks<'_> {
    // The pair after v.
    pub fn next(&self, v: usize) -> Option<usize>
        requires { v < most_pairs }
        ensures { MatchOption result (get_or self.now.link.now v 0 ≡ 0) (λ next. get_or self.now.link.now v 0 ≡ next + 1) }
    {
        usize::from(self.link[v]).checked_sub(1)
    }

    // The label of the step from v to the pair after it.
    pub fn label(&self, v: usize) -> u32
        requires { v < most_pairs }
        ensures { result ≡ get_or self.now.label.now v 0 }
    {
        self.label[v]
    }
}
