// Calls that are told the layout, for a layer above that serves both.
pub use calls_basket_code::basket::basket_in_layout;
pub use calls_get_code::get::get_in_layout;
pub use calls_locate_code::locate::locate_in_layout;
pub use calls_write_layout_code::remove::remove_in_layout;
pub use calls_write_layout_code::write::write_in_layout;
pub use layout_fields_code::fields::layout_number;
