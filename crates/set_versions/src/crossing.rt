// Versions, and the views that updates have of them, are Send and Sync.

use crate::below::Below;
use crate::cells::Cell;
use crate::marks::Marks;
use crate::versions::Versions;

fn is_send<T: Send>(_value: &T) {}

fn is_sync<T: Sync>(_value: &T) {}

fn marks_cross(marks: &Marks) {
    is_send(marks);
    is_sync(marks);
}

fn cells_cross(cell: &Cell) {
    is_send(cell);
    is_sync(cell);
}

fn versions_cross(versions: &Versions) {
    is_send(versions);
    is_sync(versions);
}

fn views_cross(below: &Below<'_>) {
    is_send(below);
    is_sync(below);
}
