//! Which variable a name is (C17, section 6.2.1: an inner declaration hides an outer one).
ghost use Rattle.std.specs.Prelude.{◌≤◌, IfNone, IfSome, length};
ghost use Rattle.c_expressions.specs.Scopes as meant;

/// The innermost of so many names, the first ones, that is this name: names of inner blocks stand after those of outer
/// ones.
pub fn innermost(names: &[&[u8]], name: &[u8], count: usize) -> Option<usize>
    requires { count ≤ length names.now }
    ensures some { IfSome result (meant.IsInnermost names.now name.now count) }
    ensures none { IfNone result (meant.HasNone names.now name.now 0 count) }
{
    if count == 0 {
        return None;
    }
    let last = count - 1;
    if names[last] == name {
        return Some(last);
    }
    innermost(names, name, last)
}
