//! The users of each arc, class by class.
ghost use Rattle.query.specs.ArcUsers.{AreInOrder, AreUsersOf, user_of as user_at, users_of};
ghost use Rattle.std.specs.Prelude.{◌≡◌, IfOk};

use crate::uses::Use;
use std::alloc::{AllocError, Global};

/// That the feature at an index, which is of a class, uses an arc.
#[derive(Clone, Copy, PartialEq, Eq, PartialOrd, Ord, Debug)]
pub(crate) struct ArcUser {
    pub(crate) arc: usize,
    pub(crate) class: usize,
    pub(crate) index: usize,
}

/// A use with the class of its index. An index without one is a class of its own.
pub(crate) fn user_of(classes: &[usize], used: Use) -> ArcUser
    ensures { result ≡ user_at classes.now used }
{
    ArcUser {
        arc: used.arc,
        class: classes.get(used.index).copied().unwrap_or(used.index),
        index: used.index,
    }
}

/// The users by these uses, arc by arc, and for each arc class by class.
pub(crate) fn users_by(
    alloc: Global,
    uses: &[Use],
    classes: &[usize],
) -> Result<Vec<ArcUser>, AllocError>
    ensures order { IfOk result (λ v. AreInOrder v.items) }
    ensures users { IfOk result (λ v. AreUsersOf classes.now uses.now v.items) }
{
    let mut users = Vec::with_capacity(alloc, uses.len())?;
    for used in uses {
        users.push(user_of(classes, *used))?;
    }
    users.sort_unstable();
    Ok(users)
}

/// Those of an arc.
pub(crate) fn of_arc(users: &[ArcUser], arc: usize) -> &[ArcUser]
    requires { AreInOrder users.now }
    ensures { result.now ≡ users_of arc users.now }
{
    let (_, from) = users.split_at(users.partition_point(|user| user.arc < arc));
    let (here, _) = from.split_at(from.partition_point(|user| user.arc <= arc));
    here
}
