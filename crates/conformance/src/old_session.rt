// An old session: carried over, what it becomes, and a list of calls on that.
use crate::calls::{run_list, show_whole};
use clients::session::carry_over;
use records::old::read_old_session;
use streams::print::{answer_line, line};

pub(crate) fn run_upgrade(case: u64) {
    line(b"upgrade", case);
    let carried = carry_over(read_old_session());
    answer_line(b"carry-over", carried.answer);
    show_whole(carried.session, false);
    run_list(carried.session);
}
