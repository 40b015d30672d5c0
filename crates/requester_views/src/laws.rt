//! The laws of a requester's views. Each function is its contract.

ghost use Rattle.requester_views.specs.Laws.{ViewsAreBetween};

/// In every run, where a view of a requester knows its connection, the record that its provider has of it is between the view's two points.
pub fn between()
    ensures { ViewsAreBetween }
{}
