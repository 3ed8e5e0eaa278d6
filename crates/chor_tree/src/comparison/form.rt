//! Statements and tails, whatever follows them.

ghost use Rattle.std.specs.Prelude.{◌≡◌, ◌&&◌};
ghost use Rattle.chor_tree.specs.Forms.{same_heads, is_start, is_value, is_label, is_give, is_set, is_host, is_show, is_if, is_call};

use crate::comparison::both::Say;
use crate::file::File;
use crate::tree::Form;

// Whether two nodes are the same statement, or the same tail.
pub fn same_heads(left: &File, right: &File, form: &Form, other: &Form) -> bool
    ensures { result ≡ same_heads left.now right.now form.now other.now }
{
    match form {
        Form::Start { .. } => same_starts(left, right, form, other),
        Form::Value { .. } => same_values(left, right, form, other),
        Form::Label { .. } => same_labels(left, right, form, other),
        Form::Give { .. } => same_gives(left, right, form, other),
        Form::Set { .. } => same_sets(left, right, form, other),
        Form::Host { .. } => same_hosts(left, right, form, other),
        Form::Show { .. } => same_shows(left, right, form, other),
        Form::If { .. } => same_ifs(left, right, form, other),
        Form::Call { .. } => same_calls(left, right, form, other),
        Form::End => match other {
            Form::End => true,
            _ => false,
        },
    }
}

// `start a(k): p[A], .. new r[C], ..`
fn same_starts(left: &File, right: &File, form: &Form, other: &Form) -> bool
    ensures { result ≡ (is_start form.now && same_heads left.now right.now form.now other.now) }
{
    let Form::Start {
        channel,
        session,
        active,
        serve,
        ..
    } = form
    else {
        return false;
    };
    let Form::Start {
        channel: other_channel,
        session: other_session,
        active: other_active,
        serve: other_serve,
        ..
    } = other
    else {
        return false;
    };
    channel.says(other_channel, left, right)
        & session.says(other_session, left, right)
        & active.says(other_active, left, right)
        & serve.says(other_serve, left, right)
}

// `p[A].e -> q[B].x : k`
fn same_values(left: &File, right: &File, form: &Form, other: &Form) -> bool
    ensures { result ≡ (is_value form.now && same_heads left.now right.now form.now other.now) }
{
    let Form::Value {
        from,
        expr,
        to,
        var,
        session,
        ..
    } = form
    else {
        return false;
    };
    let Form::Value {
        from: other_from,
        expr: other_expr,
        to: other_to,
        var: other_var,
        session: other_session,
        ..
    } = other
    else {
        return false;
    };
    from.says(other_from, left, right)
        & expr.says(other_expr, left, right)
        & to.says(other_to, left, right)
        & var.says(other_var, left, right)
        & session.says(other_session, left, right)
}

// `p[A] -> q[B] : k.l`
fn same_labels(left: &File, right: &File, form: &Form, other: &Form) -> bool
    ensures { result ≡ (is_label form.now && same_heads left.now right.now form.now other.now) }
{
    let Form::Label {
        from,
        to,
        session,
        label,
        ..
    } = form
    else {
        return false;
    };
    let Form::Label {
        from: other_from,
        to: other_to,
        session: other_session,
        label: other_label,
        ..
    } = other
    else {
        return false;
    };
    from.says(other_from, left, right)
        & to.says(other_to, left, right)
        & session.says(other_session, left, right)
        & label.says(other_label, left, right)
}

// `p[A] -> q[B] : k(h[R])`
fn same_gives(left: &File, right: &File, form: &Form, other: &Form) -> bool
    ensures { result ≡ (is_give form.now && same_heads left.now right.now form.now other.now) }
{
    let Form::Give {
        from,
        to,
        session,
        given,
        ..
    } = form
    else {
        return false;
    };
    let Form::Give {
        from: other_from,
        to: other_to,
        session: other_session,
        given: other_given,
        ..
    } = other
    else {
        return false;
    };
    from.says(other_from, left, right)
        & to.says(other_to, left, right)
        & session.says(other_session, left, right)
        & given.says(other_given, left, right)
}

// `p.x := e`
fn same_sets(left: &File, right: &File, form: &Form, other: &Form) -> bool
    ensures { result ≡ (is_set form.now && same_heads left.now right.now form.now other.now) }
{
    let Form::Set {
        process,
        var,
        expr,
        ..
    } = form
    else {
        return false;
    };
    let Form::Set {
        process: other_process,
        var: other_var,
        expr: other_expr,
        ..
    } = other
    else {
        return false;
    };
    process.says(other_process, left, right)
        & var.says(other_var, left, right)
        & expr.says(other_expr, left, right)
}

// `p.x := host f(e, e)`
fn same_hosts(left: &File, right: &File, form: &Form, other: &Form) -> bool
    ensures { result ≡ (is_host form.now && same_heads left.now right.now form.now other.now) }
{
    let Form::Host {
        process,
        var,
        name,
        left: first,
        right: second,
        ..
    } = form
    else {
        return false;
    };
    let Form::Host {
        process: other_process,
        var: other_var,
        name: other_name,
        left: other_first,
        right: other_second,
        ..
    } = other
    else {
        return false;
    };
    process.says(other_process, left, right)
        & var.says(other_var, left, right)
        & name.says(other_name, left, right)
        & first.says(other_first, left, right)
        & second.says(other_second, left, right)
}

// `p show e`
fn same_shows(left: &File, right: &File, form: &Form, other: &Form) -> bool
    ensures { result ≡ (is_show form.now && same_heads left.now right.now form.now other.now) }
{
    let Form::Show { process, expr, .. } = form else {
        return false;
    };
    let Form::Show {
        process: other_process,
        expr: other_expr,
        ..
    } = other
    else {
        return false;
    };
    process.says(other_process, left, right) & expr.says(other_expr, left, right)
}

// `if p.e`
fn same_ifs(left: &File, right: &File, form: &Form, other: &Form) -> bool
    ensures { result ≡ (is_if form.now && same_heads left.now right.now form.now other.now) }
{
    let Form::If { process, expr, .. } = form else {
        return false;
    };
    let Form::If {
        process: other_process,
        expr: other_expr,
        ..
    } = other
    else {
        return false;
    };
    process.says(other_process, left, right) & expr.says(other_expr, left, right)
}

// `call F(p, ..; k, ..)`
fn same_calls(left: &File, right: &File, form: &Form, other: &Form) -> bool
    ensures { result ≡ (is_call form.now && same_heads left.now right.now form.now other.now) }
{
    let Form::Call {
        name,
        processes,
        sessions,
    } = form
    else {
        return false;
    };
    let Form::Call {
        name: other_name,
        processes: other_processes,
        sessions: other_sessions,
    } = other
    else {
        return false;
    };
    name.says(other_name, left, right)
        & processes.says(other_processes, left, right)
        & sessions.says(other_sessions, left, right)
}
