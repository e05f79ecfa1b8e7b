//! Moments of scripts, and the time-outs that expire at them.

use super::host::Host;
use super::streams::shows;

#[test]
fn each_button_counts_for_30000_milliseconds_more(rt: HostRuntime) {
    let rt = Host::new(rt);
    shows(
        &rt,
        b"new a 123\nbutton a 1\nat 20000\nbutton a 2\nat 49999\nshow a\nat 50000\nshow a\n",
        "a locked buttons 0 waiting 0\n\
         a locked buttons 1 waiting 0\n\
         at 20000 expired 0\n\
         a locked buttons 2 waiting 0\n\
         at 49999 expired 0\n\
         a locked buttons 2 waiting 0\n\
         at 50000 expired 1\n\
         a locked buttons 0 waiting 0\n",
        0,
    );
}

#[test]
fn an_open_door_is_locked_after_10000_milliseconds(rt: HostRuntime) {
    let rt = Host::new(rt);
    shows(
        &rt,
        b"new a 1\nat 5\nbutton a 1\nat 10004\nshow a\nat 10005\nshow a\n",
        "a locked buttons 0 waiting 0\n\
         at 5 expired 0\n\
         a open buttons 0 waiting 0\n\
         at 10004 expired 0\n\
         a open buttons 0 waiting 0\n\
         at 10005 expired 1\n\
         a locked buttons 0 waiting 0\n",
        0,
    );
}

#[test]
fn a_door_that_locked_itself_has_no_button(rt: HostRuntime) {
    let rt = Host::new(rt);
    shows(
        &rt,
        b"new a 12\n\
          new b 12\n\
          button a 1\n\
          button a 2\n\
          button b 1\n\
          button b 2\n\
          at 10000\n\
          show a\n\
          stop a 7\n\
          button b 1\n\
          stop b 7\n",
        "a locked buttons 0 waiting 0\n\
         b locked buttons 0 waiting 0\n\
         a locked buttons 1 waiting 0\n\
         a open buttons 0 waiting 0\n\
         b locked buttons 1 waiting 0\n\
         b open buttons 0 waiting 0\n\
         at 10000 expired 2\n\
         a locked buttons 0 waiting 0\n\
         a stopped 7 word 0\n\
         b locked buttons 1 waiting 0\n\
         b stopped 7 word 1\n",
        0,
    );
}

#[test]
fn a_button_that_waited_may_open_the_door_again(rt: HostRuntime) {
    let rt = Host::new(rt);
    shows(
        &rt,
        b"new a 1\nbutton a 1\nbutton a 1\nat 10000\nshow a\nat 19999\nat 20000\nshow a\n",
        "a locked buttons 0 waiting 0\n\
         a open buttons 0 waiting 0\n\
         a open buttons 0 waiting 1\n\
         at 10000 expired 1\n\
         a open buttons 0 waiting 0\n\
         at 19999 expired 0\n\
         at 20000 expired 1\n\
         a locked buttons 0 waiting 0\n",
        0,
    );
}

#[test]
fn moments_from_9223372036854775808_on_are_refused(rt: HostRuntime) {
    let rt = Host::new(rt);
    shows(
        &rt,
        b"at 9223372036854775808\nat 18446744073709551615\nat 7\nat 9223372036854775807\n",
        "line 1 refused 4\n\
         line 2 refused 4\n\
         at 7 expired 0\n\
         at 9223372036854775807 expired 0\n",
        1,
    );
}

#[test]
fn a_refused_moment_changes_nothing(rt: HostRuntime) {
    let rt = Host::new(rt);
    shows(
        &rt,
        b"new a 12\n\
          button a 1\n\
          at 9223372036854775808\n\
          at 18446744073709551615\n\
          show a\n\
          at 9223372036854775807\n\
          show a\n\
          button a 1\n\
          at 9223372036854775807\n\
          show a\n",
        "a locked buttons 0 waiting 0\n\
         a locked buttons 1 waiting 0\n\
         line 3 refused 4\n\
         line 4 refused 4\n\
         a locked buttons 1 waiting 0\n\
         at 9223372036854775807 expired 1\n\
         a locked buttons 0 waiting 0\n\
         a locked buttons 1 waiting 0\n\
         at 9223372036854775807 expired 0\n\
         a locked buttons 1 waiting 0\n",
        1,
    );
}

#[test]
fn a_moment_has_20_digits_and_is_18446744073709551615_at_most(rt: HostRuntime) {
    let rt = Host::new(rt);
    shows(
        &rt,
        b"at 18446744073709551616\n\
          at 99999999999999999999\n\
          at 000000000000000000005\n\
          at 184467440737095516150\n\
          at\n\
          at 5 5\n\
          at +1\n\
          at -1\n\
          at 1x\n\
          At 5\n\
          at 00000000000000000004\n\
          at   00006  \n",
        "line 1 malformed\n\
         line 2 malformed\n\
         line 3 malformed\n\
         line 4 malformed\n\
         line 5 malformed\n\
         line 6 malformed\n\
         line 7 malformed\n\
         line 8 malformed\n\
         line 9 malformed\n\
         line 10 malformed\n\
         at 4 expired 0\n\
         at 6 expired 0\n",
        1,
    );
}

#[test]
fn a_moment_that_goes_back_counts_as_the_latest(rt: HostRuntime) {
    let rt = Host::new(rt);
    shows(
        &rt,
        b"at 10\nat 5\nnew a 12\nat 0\nbutton a 1\nat 30009\nat 30010\n",
        "at 10 expired 0\n\
         at 10 expired 0\n\
         a locked buttons 0 waiting 0\n\
         at 10 expired 0\n\
         a locked buttons 1 waiting 0\n\
         at 30009 expired 0\n\
         at 30010 expired 1\n",
        0,
    );
}

#[test]
fn a_stopped_door_is_not_ticked(rt: HostRuntime) {
    let rt = Host::new(rt);
    shows(
        &rt,
        b"new a 12\nbutton a 1\nstop a 7\nat 30000\nshow a\n",
        "a locked buttons 0 waiting 0\n\
         a locked buttons 1 waiting 0\n\
         a stopped 7 word 1\n\
         at 30000 expired 0\n\
         a stopped 7 word 1\n",
        0,
    );
}

#[test]
fn each_door_is_ticked(rt: HostRuntime) {
    let rt = Host::new(rt);
    shows(
        &rt,
        b"new a 12\nnew b 12\nbutton a 1\nbutton b 1\nat 30000\nshow a\nshow b\n",
        "a locked buttons 0 waiting 0\n\
         b locked buttons 0 waiting 0\n\
         a locked buttons 1 waiting 0\n\
         b locked buttons 1 waiting 0\n\
         at 30000 expired 2\n\
         a locked buttons 0 waiting 0\n\
         b locked buttons 0 waiting 0\n",
        0,
    );
}

#[test]
fn a_door_between_others_is_stopped_and_they_are_ticked(rt: HostRuntime) {
    let rt = Host::new(rt);
    shows(
        &rt,
        b"new a 12\nnew b 12\nnew c 1\nbutton a 1\nbutton b 1\nbutton c 1\nstop b 7\nat 30000\nshow a\nshow b\nshow c\n",
        "a locked buttons 0 waiting 0\n\
         b locked buttons 0 waiting 0\n\
         c locked buttons 0 waiting 0\n\
         a locked buttons 1 waiting 0\n\
         b locked buttons 1 waiting 0\n\
         c open buttons 0 waiting 0\n\
         b stopped 7 word 1\n\
         at 30000 expired 2\n\
         a locked buttons 0 waiting 0\n\
         b stopped 7 word 1\n\
         c locked buttons 0 waiting 0\n",
        0,
    );
}

#[test]
fn a_door_that_starts_later_counts_from_the_moment_of_the_script(rt: HostRuntime) {
    let rt = Host::new(rt);
    shows(
        &rt,
        b"at 100\nnew a 12\nbutton a 1\nat 30099\nat 30100\nshow a\n",
        "at 100 expired 0\n\
         a locked buttons 0 waiting 0\n\
         a locked buttons 1 waiting 0\n\
         at 30099 expired 0\n\
         at 30100 expired 1\n\
         a locked buttons 0 waiting 0\n",
        0,
    );
}
