// Well-formed plans.

ghost use Rattle.std.specs.Prelude.{◌≡◌};
ghost use Rattle.plan.specs.Layout.{plan_places, plan_gap, plan_kept, info_count, info_in, step_count, steps_at, steps_in, plan_refusal};

// The numbers of a plan that is well-formed.
#[derive(Clone, Copy)]
pub struct Plan<'a> {
    pub words: &'a [u32],
    pub ghost formed: { plan_refusal words.now ≡ 0 },
}

#[tactic(auto, using(crate::specs::LayoutLaws::steps_within))]
impl Plan<'_> {
    pub fn places(&self) -> usize
        ensures { result ≡ plan_places self.now.words.now }
    {
        crate::places(self.words)
    }

    pub fn gap(&self) -> usize
        ensures { result ≡ plan_gap self.now.words.now }
    {
        crate::gap(self.words)
    }

    pub fn kept(&self) -> usize
        ensures { result ≡ plan_kept self.now.words.now }
    {
        crate::kept(self.words)
    }

    pub fn info_count(&self) -> usize
        ensures { result ≡ info_count self.now.words.now }
    {
        crate::info_count(self.words)
    }

    pub fn info(&self) -> &[u32]
        ensures { result.now ≡ info_in self.now.words.now }
    {
        crate::info(self.words)
    }

    pub fn step_count(&self) -> usize
        ensures { result ≡ step_count self.now.words.now }
    {
        crate::step_count(self.words)
    }

    pub fn steps(&self) -> &[u32]
        ensures { result.now ≡ steps_in self.now.words.now }
    {
        crate::steps(self.words)
    }

    // where the steps start
    pub fn steps_at(&self) -> usize
        ensures { result ≡ steps_at self.now.words.now }
    {
        crate::steps_at(self.words)
    }
}
