mod front_of_text;
mod named_folder;
mod past_values;
mod printed_plans;
mod run_summaries;
mod stops_and_events;
mod worked_trails;
