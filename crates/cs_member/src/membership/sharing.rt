// What threads may share.

use crate::membership::membership::Recognizer;
use crate::membership::work::MemberWork;

// Takes what threads may share.
fn take_shared<T: Sync>(_value: &T) {}

/// Threads may share a recognizer, and the work of telling sentences by it.
fn may_be_shared(recognizer: &Recognizer<'_>, work: &MemberWork<'_>) {
    take_shared(recognizer);
    take_shared(work);
}
