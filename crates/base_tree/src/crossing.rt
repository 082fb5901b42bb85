// Trees are Send and Sync if their keys and values are.

use crate::branch::Branch;
use crate::cursors::Cursor;
use crate::maps::TreeMap;
use crate::shares::Share;

fn is_send<T: Send>(_value: &T) {}

fn is_sync<T: Sync>(_value: &T) {}

fn branch_crosses<K: Send + Sync, V: Send + Sync>(branch: &Branch<K, V>) {
    is_send(branch);
    is_sync(branch);
}

fn map_crosses<K: Ord + Share + Send + Sync, V: Share + Send + Sync>(map: &TreeMap<K, V>) {
    is_send(map);
    is_sync(map);
}

fn numbers_cross(map: &TreeMap<u32, bool>) {
    is_send(map);
    is_sync(map);
}

fn cursor_crosses<K: Ord + Send + Sync, V: Send + Sync>(cursor: &Cursor<'_, K, V>) {
    is_send(cursor);
    is_sync(cursor);
}
