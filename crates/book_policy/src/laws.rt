//! Laws of the definitions that the contract of `read_policy` cites.

ghost use Rattle.book_policy.specs.Rules.{HasOnePolicy, HasOneFault, HasPolicyOrFault, PolicyExcludesFault};

/// A law: a text spells at most one policy.
pub fn policies_are_one()
    ensures one_policy { HasOnePolicy }
{}

/// A law: a text has at most one fault beside want of memory.
pub fn policy_faults_are_one()
    ensures one_fault { HasOneFault }
{}

/// A law: a text that spells a policy has no fault but want of memory.
pub fn policies_exclude_faults()
    ensures no_fault { PolicyExcludesFault }
{}

/// A law: a text spells a policy, or has a fault.
pub fn texts_have_policy_or_fault()
    ensures { HasPolicyOrFault }
{}
