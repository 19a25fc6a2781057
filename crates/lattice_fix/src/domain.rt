// What the solver asks of the values that it moves along a graph.
ghost use Rattle.std.specs.Prelude.{◌≡◌, ◌↔◌, IfOk, IfErr, OnErr, false};
ghost use Rattle.lattice_fix.specs.Framework.{Framework, IsMonotone};

/// Values that are moved along the edges of a graph and joined where they meet: a monotone framework (Kam and Ullman
/// 1977), whose values may lean on a state that goes on while they are made, as numbers lean on the table that they name
/// places of.
pub trait Domain {
    /// What is moved.
    type Value: Drop;

    /// Why a call gives no value.
    type Stop: Drop;

    // A state as plain data, and when one goes on from another.
    ghost State: { Type 0 };

    ghost state: { Self → Self.State };

    ghost goes_on: { Self.State → Self.State → Type 0 };

    // Which values are fit in a state, what they stand for there, and which stops the state licenses.
    ghost Data: { Type 0 };

    ghost fits: { Self.State → Self.Value → Type 0 };

    ghost stands: { Self.State → Self.Value → Self.Data };

    ghost licensed: { Self.State → Self.Stop → Type 0 };

    // What never changes of a state, and the start, transfers, order, join and longest chain that it gives.
    ghost Setting: { Type 0 };

    ghost setting: { Self.State → Self.Setting };

    ghost framework: { Self.Setting → Framework Self.Data };

    /// The value that enters before node 0.
    fn start(&mut self) -> Result<Self::Value, Self::Stop>
        ensures goes_on { goes_on (state self.old) (state self.new) }
        ensures fits { IfOk result (λ value. fits (state self.new) value) }
        ensures value { IfOk result (λ value. let s = state self.new in
            stands s value ≡ (framework (setting s)).start) }
        ensures stop { IfErr result (λ stop. licensed (state self.new) stop) };

    /// What the node makes of the value before it. Any number may be asked of.
    fn transfer(&mut self, node: u32, value: &Self::Value) -> Result<Self::Value, Self::Stop>
        requires { fits (state self.old) value.now }
        ensures goes_on { goes_on (state self.old) (state self.new) }
        ensures fits { IfOk result (λ moved. fits (state self.new) moved) }
        ensures value { IfOk result (λ moved. let s = state self.new in
            stands s moved ≡ (framework (setting s)).transfer node (stands s value.now)) }
        ensures stop { IfErr result (λ stop. licensed (state self.new) stop) };

    /// Joins the other value into this one. Answers whether it then stands for something else; after a stop it is as
    /// before.
    fn join_into(&mut self, into: &mut Self::Value, other: &Self::Value) -> Result<bool, Self::Stop>
        requires into { fits (state self.old) into.old }
        requires other { fits (state self.old) other.now }
        ensures goes_on { goes_on (state self.old) (state self.new) }
        ensures fits { fits (state self.new) into.new }
        ensures value { IfOk result (λ raised. let s = state self.new in
            stands s into.new ≡ (framework (setting s)).join (stands s into.old) (stands s other.now)) }
        ensures raised { IfOk result (λ raised. let s = state self.new in
            (raised ≡ false) ↔ (stands s into.new ≡ stands s into.old)) }
        ensures kept { OnErr result (into.new ≡ into.old) }
        ensures stop { IfErr result (λ stop. licensed (state self.new) stop) };

    // The laws: going on is reflexive and transitive, and what holds in a state holds in each that goes on from it.
    ghost reflexive: { (s : Self.State) → goes_on s s };

    ghost transitive: { (s t u : Self.State) → goes_on s t → goes_on t u → goes_on s u };

    ghost same_setting: { (s t : Self.State) → goes_on s t → setting t ≡ setting s };

    ghost still_fits: { (s t : Self.State) (value : Self.Value) → goes_on s t → fits s value → fits t value };

    ghost still_stands: { (s t : Self.State) (value : Self.Value) →
        goes_on s t → fits s value → stands t value ≡ stands s value };

    ghost still_licensed: { (s t : Self.State) (stop : Self.Stop) →
        goes_on s t → licensed s stop → licensed t stop };

    // What fit values stand for is in the carrier of a monotone framework.
    ghost within: { (s : Self.State) (value : Self.Value) →
        fits s value → (framework (setting s)).carrier (stands s value) };

    ghost monotone: { (domain : Self) → IsMonotone (framework (setting (state domain))) };
}
